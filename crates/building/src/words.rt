// The words of the steps that the programs are made of (`step_word`). They are written out: made from an operation, a target and a source
// they would only say again what their names say.
pub(crate) const MUL_0_1: u32 = 0x5000_0004;

pub(crate) const MUL_1_2: u32 = 0x5000_0009;

pub(crate) const MUL_2_0: u32 = 0x5000_0002;

pub(crate) const MUL_2_1: u32 = 0x5000_0006;

pub(crate) const MUL_3_1: u32 = 0x5000_0007;

pub(crate) const DIV_0_1: u32 = 0x6000_0004;

pub(crate) const DIV_2_1: u32 = 0x6000_0006;

pub(crate) const DIV_3_1: u32 = 0x6000_0007;

pub(crate) const SWP_0_1: u32 = 0x7000_0004;

pub(crate) const SWP_0_2: u32 = 0x7000_0008;

pub(crate) const SWP_1_2: u32 = 0x7000_0009;

pub(crate) const SWP_1_3: u32 = 0x7000_000D;

// Build and check: the definitions and laws of this layer, and the type that they name. It has no functions.
#![tactic(auto)]

use fibonacci::BitString;
use named::Figure;

// The figure, the forms of its first and its last loop and those beside them. A form beside another is of as many places; where a figure
// selects nothing beside, none of its places is set.
#[derive(Clone, Copy)]
pub struct FormRows {
    pub figure: Figure,
    pub first: BitString,
    pub beside: BitString,
    pub last: BitString,
    pub beside_last: BitString,
}

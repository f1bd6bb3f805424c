// Numbers of the golden ratio: Fibonacci numbers, Hofstadter's G and h.
#![tactic(auto)]

ghost use Rattle.std.specs.Prelude.{◌≡◌};
ghost use Rattle.refusal.specs.Outcomes.{outcome_of};
ghost use Rattle.fibonacci.specs.Hofstadter.{G};
ghost use Rattle.fibonacci.specs.Height.{height};
ghost use Rattle.fibonacci.specs.Services.{fibonacci_of, fibonacci_or_zero, fibonacci_outcome};

use refusal::Refusal;

const F_47: u64 = 2971215073;

const F_48: u64 = 4807526976;

// Half of L_48.
const HALF_L_48: u64 = 5374978561;

// A row for each h from 1 to 47: the first r that has it, and the last. The last is L_h where h is odd and L_h - 1 where h is even; for 47 it
// is the largest number of 32 bits, which is below L_47.
static RANGES: [[u32; 2]; 47] = [
    [0, 1], // h = 1
    [2, 2], // h = 2
    [3, 4], // h = 3
    [5, 6], // h = 4
    [7, 11], // h = 5
    [12, 17], // h = 6
    [18, 29], // h = 7
    [30, 46], // h = 8
    [47, 76], // h = 9
    [77, 122], // h = 10
    [123, 199], // h = 11
    [200, 321], // h = 12
    [322, 521], // h = 13
    [522, 842], // h = 14
    [843, 1364], // h = 15
    [1365, 2206], // h = 16
    [2207, 3571], // h = 17
    [3572, 5777], // h = 18
    [5778, 9349], // h = 19
    [9350, 15126], // h = 20
    [15127, 24476], // h = 21
    [24477, 39602], // h = 22
    [39603, 64079], // h = 23
    [64080, 103681], // h = 24
    [103682, 167761], // h = 25
    [167762, 271442], // h = 26
    [271443, 439204], // h = 27
    [439205, 710646], // h = 28
    [710647, 1149851], // h = 29
    [1149852, 1860497], // h = 30
    [1860498, 3010349], // h = 31
    [3010350, 4870846], // h = 32
    [4870847, 7881196], // h = 33
    [7881197, 12752042], // h = 34
    [12752043, 20633239], // h = 35
    [20633240, 33385281], // h = 36
    [33385282, 54018521], // h = 37
    [54018522, 87403802], // h = 38
    [87403803, 141422324], // h = 39
    [141422325, 228826126], // h = 40
    [228826127, 370248451], // h = 41
    [370248452, 599074577], // h = 42
    [599074578, 969323029], // h = 43
    [969323030, 1568397606], // h = 44
    [1568397607, 2537720636], // h = 45
    [2537720637, 4106118242], // h = 46
    [4106118243, 4294967295], // h = 47
];

// F_0 to F_93, the last that fits 64 bits.
static FIBONACCI: [u64; 94] = [
    0,
    1,
    1,
    2,
    3,
    5,
    8,
    13,
    21,
    34,
    55,
    89,
    144,
    233,
    377,
    610,
    987,
    1597,
    2584,
    4181,
    6765,
    10946,
    17711,
    28657,
    46368,
    75025,
    121393,
    196418,
    317811,
    514229,
    832040,
    1346269,
    2178309,
    3524578,
    5702887,
    9227465,
    14930352,
    24157817,
    39088169,
    63245986,
    102334155,
    165580141,
    267914296,
    433494437,
    701408733,
    1134903170,
    1836311903,
    2971215073,
    4807526976,
    7778742049,
    12586269025,
    20365011074,
    32951280099,
    53316291173,
    86267571272,
    139583862445,
    225851433717,
    365435296162,
    591286729879,
    956722026041,
    1548008755920,
    2504730781961,
    4052739537881,
    6557470319842,
    10610209857723,
    17167680177565,
    27777890035288,
    44945570212853,
    72723460248141,
    117669030460994,
    190392490709135,
    308061521170129,
    498454011879264,
    806515533049393,
    1304969544928657,
    2111485077978050,
    3416454622906707,
    5527939700884757,
    8944394323791464,
    14472334024676221,
    23416728348467685,
    37889062373143906,
    61305790721611591,
    99194853094755497,
    160500643816367088,
    259695496911122585,
    420196140727489673,
    679891637638612258,
    1100087778366101931,
    1779979416004714189,
    2880067194370816120,
    4660046610375530309,
    7540113804746346429,
    12200160415121876738,
];

// A Fibonacci number by its index.
pub fn fibonacci(index: u32) -> Result<u64, Refusal>
    ensures { outcome_of result ≡ fibonacci_outcome index }
{
    fibonacci_of(index).ok_or(Refusal::Index)
}

// Hofstadter's G: n + 1 divided by the golden ratio, rounded down. F_48 / F_47 in the ratio's place gives the same or one more, and the
// remainder tells which (Laws/Quotients of `fibonacci`). n + 1 isn't made, since it can be 2^64: n - n / 2 is half of it, rounded down.
pub fn hofstadter(n: u64) -> u64
    ensures { result ≡ G n }
{
    let part = (n % F_48 + 1) * F_47;
    let quotient = n / F_48 * F_47 + part / F_48;
    let half = n - n / 2;
    if part % F_48 <= half / HALF_L_48 {
        return quotient - 1;
    }
    quotient
}

// Document 01's h: the least positive h with r < phi^h, read off the list. r is in the first range that doesn't end below it. Since the
// rounds have a limit, the compiler unrolls the loop into comparisons with numbers.
pub fn height(r: u32) -> u32
    ensures { result ≡ height r }
{
    for (row, range) in RANGES.iter().enumerate() {
        if r <= range[1] {
            return row as u32 + 1;
        }
    }
    47
}

// F_index, where it fits 64 bits.
pub fn fibonacci_of(index: u32) -> Option<u64>
    ensures { result ≡ fibonacci_of index }
{
    FIBONACCI.get(index as usize).copied()
}

// F_index, and 0 where it does not fit.
pub fn fibonacci_or_zero(index: u32) -> u64
    ensures { result ≡ fibonacci_or_zero index }
{
    fibonacci_of(index).unwrap_or(0)
}

// The rules of RVSI that a commit can break, each with the place or places where it was broken.

// Places are 0, 1, 2: of recorded reads for BV, FV and SV (x, then y), of written keys for WC.
#[derive(Clone, Copy, PartialEq, Eq)]
pub enum Rule {
    BV(usize),
    FV(usize),
    SV(usize, usize),
    WC(usize),
}

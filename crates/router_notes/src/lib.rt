// The forward invariant over all later notes: laws for the router and for path assembly. They are in specs/, Notes first. The code has the
// router's arrays and their sizes alone.
#![tactic(auto)]

// The vertices of 32 lines and 32 columns.
pub const VERTICES: usize = 1024;

// The pairs that there can be: 64 at the start, and at most two more for each vertex.
pub const PAIRS: usize = 2112;

// The greatest number of a pair.
pub const LAST_PAIR: usize = 2111;

// The steps of a path.
pub const STEPS: usize = 2048;

// The table of live pairs, row by row: the two ends of a pair, each a word 32 * line + column, and the pair's number.
#[derive(Drop)]
pub struct Table {
    pub first: [u16; PAIRS],
    pub second: [u16; PAIRS],
    pub number: [u16; PAIRS],
}

// What the router notes. side[v] is k + 1 of the pair k that left vertex v = 32 * line + column to the right; vert[v] is 2 * k + 2 of the one
// that left it downwards, and 1 more of one that left it upwards. start[k] and end[k] are the vertices that pair k was made with. half[k] is the
// number of pair k's first half, the second has the next one, and 0 is that of an undivided pair; to_corner[k] and from_corner[k] are the moves
// between the halves: 0 up, 1 right, 2 down, 3 left.
// Kept: a move is a byte, and not a direction: the laws `Holds` of router_invariant and `path_is` of router_trace are of numbers.
#[derive(Drop)]
pub struct Notes {
    pub side: [u16; VERTICES],
    pub vert: [u16; VERTICES],
    pub half: [u16; PAIRS],
    pub start: [u16; PAIRS],
    pub end: [u16; PAIRS],
    pub to_corner: [u8; PAIRS],
    pub from_corner: [u8; PAIRS],
}

// The first and the last column of each line.
#[derive(Drop)]
pub struct Lines {
    pub first: [u8; 32],
    pub last: [u8; 32],
}

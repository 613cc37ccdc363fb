// The types of the board's calls, as documents 01 and 02 lay them out. The definitions in specs/ speak of them.
#![tactic(auto)]

// Head: the sizes, and the number of pairs.
#[repr(C)]
#[derive(Clone, Copy)]
pub struct Head {
    pub operators: u16,
    pub rides: u16,
    pub pairs: u16,
}

// Message: kind 1 is a grant, 2 a withdrawal, 3 operator on, 4 operator off, 5 ride in, 6 ride out; a revision from 0 to 255 orders corrections
// within one stamp.
#[repr(C)]
#[derive(Clone, Copy)]
pub struct Message {
    pub kind: u16,
    pub operator: u16,
    pub ride: u16,
    pub revision: u16,
    pub stamp: u32,
}

// What a query answers: document 01's number, and how many operators and rides it marked.
#[repr(C)]
#[derive(Clone, Copy)]
pub struct Counts {
    pub code: u16,
    pub operators: u16,
    pub rides: u16,
}

// What a peel answers: document 01's number, settled (1) or unsettled (0), and the steps taken.
#[repr(C)]
#[derive(Clone, Copy)]
pub struct Peeled {
    pub code: u16,
    pub settled: u16,
    pub steps: u16,
}

// What a message answers: document 01's number, and how many index words differ before and after.
#[repr(C)]
#[derive(Clone, Copy)]
pub struct Answer {
    pub code: u16,
    pub differ: u16,
}

// A band of a crowd table: its first and last guest count, and the limits for them.
#[repr(C)]
#[derive(Clone, Copy)]
pub struct Band {
    pub first: u16,
    pub last: u16,
    pub alpha: u16,
    pub beta: u16,
}

// A crowd table: one to eight bands in any order. Bands past the count are not read.
#[repr(C)]
#[derive(Clone, Copy)]
pub struct Bands {
    pub count: u16,
    pub bands: [Band; 8],
}

// What a look-up in a crowd table answers: document 02's number, and the limits of the band that the guest count falls in.
#[repr(C)]
#[derive(Clone, Copy)]
pub struct CrowdLimits {
    pub code: u16,
    pub alpha: u16,
    pub beta: u16,
}

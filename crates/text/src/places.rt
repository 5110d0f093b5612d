// How far a listing is laid out.
use listing::Section;

// The section that the next record stands in, the lengths of both sections, and the register that the
// last text word writes, r0 for none.
#[derive(Clone, Copy, Default, PartialEq, Eq)]
pub struct Place {
    pub section: Section,
    pub text: usize,
    pub data: usize,
    pub result: u8,
}

// What a label names: an offset in a section.
#[derive(Clone, Copy, PartialEq, Eq)]
pub struct Mark {
    pub section: Section,
    pub offset: u32,
}

// What each of all labels that there can be names, where it is defined: an array, since the calls take no heap.
pub type LabelTable = [Option<Mark>; 1024];

// Only definitions and proofs use it: the code keeps a walk and labels.
#[derive(Clone, Copy, PartialEq, Eq)]
pub struct Layout {
    pub place: Place,
    pub labels: LabelTable,
}

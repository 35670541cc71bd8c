// The image of a state, for a host that keeps it between calls: IMAGE_BYTES bytes, fields without gaps, the most significant bit first.
#![tactic(auto)]

pub mod sections; // sections.rt: the image's length and where its sections start
pub mod words; // words.rt: fields as words
pub mod pages; // pages.rt: the page tables to their bytes
pub mod writing; // writing.rt: a state to its image

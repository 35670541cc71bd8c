// The state of an image: what image_write writes, read back, and which images are accepted.
#![tactic(auto)]

pub mod head; // head.rt: the words of the board
pub mod words; // words.rt: words back to fields
pub mod pages; // pages.rt: the page tables of their bytes
pub mod reading; // reading.rt: an image to its state

// What a text says.
use grammar::{Header, Stretch};

#[derive(Drop)]
pub struct Plan {
    pub header: Header,
    pub probes: Vec<u16>,
    pub stretches: Vec<Stretch>,
}

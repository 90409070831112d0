// The four buffers that are lent to the machine, as one value.

// Memory, its MAC area, the bytes of the cache's slots, and the cache's directory.
#[derive(Drop)]
pub struct Buffers<'a> {
    pub mem: &'a mut [u8],
    pub macs: &'a mut [u8],
    pub cache: &'a mut [u8],
    pub dir: &'a mut [u32],
}

/// A frame as the cell sees it: what it is called, and how many bytes it takes on the air.
#[repr(C)]
#[derive(Clone, Copy, PartialEq, Eq, Debug, Default)]
pub struct Frame {
    /// A name that is only handed through.
    pub tag: u32,
    /// In bytes.
    pub length: u16,
}

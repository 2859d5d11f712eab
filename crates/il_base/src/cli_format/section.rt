/// Where a section lies in memory and in the file (II.25.3).
#[derive(Clone, Copy, Debug, PartialEq, Eq)]
pub struct Section {
    /// VirtualSize: its bytes in memory.
    pub size: u32,
    /// VirtualAddress: where it begins in memory.
    pub rva: u32,
    /// SizeOfRawData: its bytes in the file.
    pub raw_size: u32,
    /// PointerToRawData: where it begins in the file.
    pub raw: u32,
}

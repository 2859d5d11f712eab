ghost use Rattle.std.specs.Prelude.{◌≡◌};
ghost use Rattle.il_base.specs.cli_format.Streams.{named};

/// The streams that II.24.2.2 names.
#[derive(Clone, Copy, Debug, PartialEq, Eq)]
pub enum StreamName {
    /// `#~`
    Tables,
    /// `#Strings`
    Strings,
    /// `#US`
    UserStrings,
    /// `#GUID`
    Guids,
    /// `#Blob`
    Blobs,
    /// `#-`, tables in a form that isn't read
    Uncompressed,
    /// Any other.
    Other,
}

/// A stream of the metadata (II.24.2.2).
#[derive(Clone, Copy, Debug, PartialEq, Eq)]
pub struct Stream {
    pub name: StreamName,
    /// Where it begins, from the metadata's root.
    pub offset: u32,
    /// Its bytes.
    pub size: u32,
}

/// The stream that a name, without its zeros, names.
pub fn stream_name(name: &[u8]) -> StreamName
    ensures { result ≡ named name.now }
{
    match name {
        b"#~" => StreamName::Tables,
        b"#Strings" => StreamName::Strings,
        b"#US" => StreamName::UserStrings,
        b"#GUID" => StreamName::Guids,
        b"#Blob" => StreamName::Blobs,
        b"#-" => StreamName::Uncompressed,
        _ => StreamName::Other,
    }
}

ghost use Rattle.std.specs.Prelude.{◌≡◌, length};
ghost use Rattle.rules.specs.file_layout.Image.{Parts, image_bytes, image_length};
ghost use Rattle.rules.specs.file_layout.Metadata.{Streams, metadata_bytes};
ghost use Rattle.file_laws.specs.written_image.Written.{CanLay, ReadsBack, CanStream, StreamsReadBack};

/// How many bytes an image has is what its layout says (II.25.2, II.25.3), whatever it is made of.
pub fn lengths()
    ensures { (p : Parts) → length (image_bytes p) ≡ image_length p }
{}

/// An image that can be laid out meets the demands on an image, and reads back as what it was made of (II.25).
pub fn images()
    ensures { (p : Parts) → CanLay p → ReadsBack p (image_bytes p) }
{}

/// Metadata that can be laid out meets the demands on its root and streams, and reads back as its streams (II.24.2).
pub fn metadata()
    ensures { (s : Streams) → CanStream s → StreamsReadBack s (metadata_bytes s) }
{}

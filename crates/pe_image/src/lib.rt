//! The PE image of a file (ECMA-335 II.25). The bytes of a file go in; an image comes out that gives the bytes which
//! RVAs name, the metadata and the words of the CLI header. The result is what the demands of `il_base/specs/cli_format/Image` say,
//! in their order: an image where all hold, and else the refusal of the first that fails. `Image` takes no memory and finds
//! the section of an RVA by a walk; `ImageMap` takes some and finds it by binary search.
#![tactic(auto)]

mod headers;
mod image;
mod map;
mod sections;
mod stretches;

pub use image::Image;
pub use map::ImageMap;

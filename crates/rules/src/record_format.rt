//! The record of a file, as definitions in `specs/record_format/`: which demands a file must meet, which of them fails first, and for a
//! file that meets them the record that its bytes have (II.22 to II.25). Nothing goes in or comes out.

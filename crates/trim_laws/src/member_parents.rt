//! Laws: in what a merge leaves, each MemberRef row names the type in which its member is found. Nothing goes in or comes out.

pub mod laws;

//! Laws: what the rows of a merge that keeps exactly what is marked have, so that they stand in the output's world as they stood in
//! that of the inputs. Nothing goes in or comes out.

pub mod laws;

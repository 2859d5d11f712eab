//! A law: what a kept method is in the world of what a trim leaves. Nothing goes in or comes out.

pub mod laws;

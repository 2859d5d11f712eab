//! The new tokens of every assembly in a merge: in go a world with its keys, the tokens of the output by keys and by the numbers of types
//! (`member_rows`), and the texts of its kept methods (`merged_texts`); out comes for each assembly what its tokens become
//! (`moved_parts`). `rules/specs/merge_rules/Moved` defines it.

mod tokens;

pub use tokens::all_tokens;

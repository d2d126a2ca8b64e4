//! Terms, markup and declarations without sugar, rule by rule.
#![tactic(auto)]

pub mod actions;
pub mod atom_rules;
pub mod atoms;
pub mod boxes;
pub mod branches;
pub mod calls;
pub mod chains;
pub mod decl_rules;
pub mod decls;
pub mod dots;
pub mod functions;
pub mod groups;
pub mod lists;
pub mod locals;
pub mod made;
pub mod markup;
pub mod markup_rules;
pub mod name_lists;
pub mod nodes;
pub mod operands;
pub mod operators;
pub mod paths;
pub mod records;
pub mod signed;
pub mod tables;
pub mod term_rules;
pub mod types;

pub use decl_rules::build_decl;
pub use decls::decls_of;
pub use markup_rules::build_markup;
pub use signed::signeds_of;
pub use term_rules::build_term;

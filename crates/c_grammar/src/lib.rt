//! The grammar: classes of tokens, derivations, the syntax of a derivation, and what the limits count; and what a syntax
//! writes: expressions, statements and declarations, by the numbers of their tokens.
#![tactic(auto)]

mod class;
mod declarations;
mod decode;
mod decoding;
mod layer;
mod node;
mod statements;
mod syntax;
mod token_class;
mod tops;
mod type_words;
mod words;

pub use class::Class;
pub use declarations::{
    DeclarationLayer, DeclaratorLayer, InitialiserLayer, SizeLayer, declaration_layer,
    declarator_layer, initialiser_layer,
};
pub use decode::{add_decoded, character, is_character};
pub use layer::{Layer, first_token, is_variable, layer_of};
pub use node::{Opened, SyntaxNode};
pub use statements::{
    BodyLayer, ItemLayer, LabelLayer, StartLayer, StatementLayer, body_layer, has_label,
    item_layer, label_layer, statement_layer,
};
pub use syntax::{Production, Syntax};
pub use token_class::{class_of, keyword_class};
pub use tops::{
    EnumeratorLayer, FunctionLayer, ParameterLayer, TopLayer, block_layer, enumerator_layer,
    into_tops, parameter_layer, top_layer, tops_of,
};
pub use type_words::kind_of;
pub use words::Words;

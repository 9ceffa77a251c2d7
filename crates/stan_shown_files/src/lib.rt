//! Trees of files as text.
//!
//! Expressions are as `stan_shown_trees` shows them. What stands around them:
//!
//! - A statement is in round brackets, behind the word with which it begins: `(while $a (break 2))`. An expression has its `;` behind it, and an empty
//!   statement is its `;` alone. A block is in braces. Statements in a row stand apart by a blank: `{($a = 1); (echo $a)}`.
//! - A last `?>` that ends a statement stands where it would show its `;`, and in round brackets before the last one: `f?>`, `(echo 1 ?>)`.
//! - Where a statement, a member, a case, an `elseif` or a `catch` begins on a later line than the first one, the line stands before it: `@2 f;`.
//! - `elseif`, `else`, `catch` and `finally` stand in round brackets in their statement, the three lists of a `for` in square brackets, and the cases of a
//!   `switch` in round brackets with their `:` or `;`: `(switch $a (case 1: f;) (default;))`.
//! - What a body of a closure holds stands behind the expression, in braces, with the number of levels around it: `(function () {f(); }) {0: {f ()};};`.
//! - A function is `(function &f (?int $a = 1, &...$b,): int {..})`, and a method the same behind its modifiers, with no braces where it has no body.
//! - Members are in round brackets. The modifiers of properties have a `:` behind them: `(public static: int $a = 1, $b)`, and so has the visibility of an
//!   adaptation: `(use A, B {(A::f insteadof B) (f as private: g) (g as public:)})`.
//! - `function` or `const` of a whole `use` has a `:` behind it, that of an item has none: `(use function: A\{f as g, h,})`, `(use A\{const B})`.
//! - The comments of the file stand behind all, each in `<` and `>` with its line, `doc` before a documentation comment: `f; </* a */> <@2 doc /** b */>`.
//! - A `,` behind the last item of a list stays.
#![tactic(auto)]

mod files;
mod functions;
mod members;
mod parts;
mod statements;
mod values;
mod words;

pub use files::file_text;

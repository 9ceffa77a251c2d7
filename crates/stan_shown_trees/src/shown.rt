//! Trees as text. Each token stands as it is spelled, with `float`, `text` or `class` (at `static`) before one that is no integer,
//! variable or name.
//!
//! - An operation is in round brackets: `($a = (- (2 ** 3)))`. Operators that go together from the left are one operation with more
//!   than two operands, `(1 - 2 + 3)`, and those that go together from the right one in another: `(1 ** (2 ** 3))`.
//! - Where the token of an operator between two operands stands on a later line than the first one, the line is behind it: `(1 +@2 2)`.
//! - What is appended to an expression is listed behind it in braces: `{$a ->b(1) [0] ::$c}` is an element of what a method gives,
//!   and its static property. A call with a blank before its `(` is no call of a method: `{f (1, 2)}`.
//! - Brackets of the source are `group(..)`, arrays `[..]`, `array[..]` and `list[..]`, and a `new` is in round brackets.
//! - A text with insertions is in `"`, its tokens in `<` and `>`, an expression in braces: `"<a>{$b}"`.
//! - A `,` behind the last item of a list stays.

use crate::marks::{
    array_mark, assignment_mark, binary_mark, leaf_mark, prefix_mark, visibility_mark,
};
use stan_base::line_at;
use stan_model_grammar::operators::BinaryOperator;
use stan_model_grammar::token::Token;
use stan_syntax::{
    Argument, Arguments, Arm, Body, ClassReference, Element, Expr, Form, MemberName, Operation,
    Parameter, Suffix, TextPart, TypeTree,
};

#[derive(Drop)]
pub struct Printer<'a> {
    pub source: &'a str,
    pub tokens: &'a [Token],
    pub text: String,
    /// Whether nothing was left out, and each expression begins with its first token.
    pub is_whole: bool,
}

impl<'a> Printer<'a> {
    /// Adds a text.
    pub fn put(&mut self, text: &str) {
        if self.text.push_str(text).is_err() {
            self.is_whole = false;
        }
    }

    fn put_bytes(&mut self, start: usize, end: usize) {
        match self.source.get(start..end) {
            Some(bytes) => self.put(bytes),
            None => self.is_whole = false,
        }
    }

    /// Adds a number.
    pub fn put_number(&mut self, number: u32) {
        let alloc = *self.text.allocator();
        match format!(in alloc; "{number}") {
            Ok(text) => self.put(&text),
            Err(_) => self.is_whole = false,
        }
    }

    /// The line of a token behind `@`, and this text, where it isn't the first line.
    pub fn line(&mut self, token: &Token, behind: &str) {
        let source = self.source.as_bytes();
        if token.start as usize > source.len() || token.start == u32::MAX {
            self.is_whole = false;
            return;
        }
        let line = line_at(source, token.start);
        if line > 1 {
            self.put("@");
            self.put_number(line);
            self.put(behind);
        }
    }

    // An operator between two operands, with the line of its token where that isn't the first one.
    fn sign(&mut self, token: &Token, operator: BinaryOperator) {
        self.put(binary_mark(operator));
        self.line(token, "");
    }

    /// Adds the bytes of a token.
    pub fn token(&mut self, token: &Token) {
        self.put_bytes(token.start as usize, token.end as usize);
    }

    /// Adds a text where something is so.
    pub fn flag(&mut self, is_set: bool, text: &str) {
        if is_set {
            self.put(text);
        }
    }

    /// The text is not whole where this does not hold.
    pub fn check(&mut self, holds: bool) {
        if !holds {
            self.is_whole = false;
        }
    }

    /// Before an item: a `,` where one stands before it.
    pub fn item(&mut self) {
        match self.text.as_bytes().last() {
            None | Some(b'(' | b'[' | b'{' | b' ') => {}
            _ => self.put(", "),
        }
    }

    // That a part begins with the first token of the whole.
    fn begins(&mut self, first: &Token, part: &Expr) {
        self.check(first.start == part.first.start);
    }

    /// Adds a written type between two texts, or nothing.
    pub fn declared(&mut self, before: &str, declared: &Option<TypeTree>, behind: &str) {
        match declared {
            None => {}
            Some(TypeTree::Nullable(_, name)) => {
                self.put(before);
                self.put("?");
                self.token(name);
                self.put(behind);
            }
            Some(TypeTree::Union(name, others)) => {
                self.put(before);
                self.token(name);
                for other in others.as_slice() {
                    self.put("|");
                    self.token(other);
                }
                self.put(behind);
            }
        }
    }

    fn captures(&mut self, captures: &[Token], comma: bool) {
        if !captures.is_empty() {
            self.put(" use (");
            for capture in captures {
                self.item();
                self.token(capture);
            }
            self.flag(comma, ",");
            self.put(")");
        }
    }

    // The bytes of a body that is held.
    fn body(&mut self, body: &Body) {
        match body {
            Body::Held { from, to } => {
                match (
                    self.tokens.get(*from as usize),
                    self.tokens.get(*to as usize),
                ) {
                    (Some(first), Some(last)) => {
                        self.put(" {");
                        self.put_bytes(first.start as usize, last.start as usize);
                        self.put("}");
                    }
                    _ => self.is_whole = false,
                }
            }
            Body::Read(_) => self.is_whole = false,
        }
    }

    fn function(&mut self, is_static: bool, word: &str, by_reference: bool) {
        self.put("(");
        self.flag(is_static, "static ");
        self.put(word);
        self.flag(by_reference, "&");
    }

    /// The text, where it is whole.
    pub fn whole(self) -> Option<String> {
        if self.is_whole { Some(self.text) } else { None }
    }

    /// Adds an expression.
    #[cycle(shown)]
    pub fn expr(&mut self, e: &Expr) {
        match &e.form {
            Form::Leaf(leaf) => {
                self.put(leaf_mark(*leaf));
                self.token(&e.first);
            }
            Form::Brackets(inner) => self.enclosed("group(", inner.get(), ")"),
            Form::Array {
                style,
                elements,
                comma,
            } => self.elements(array_mark(*style), elements.as_slice(), *comma),
            Form::IsSet { operands, comma } => {
                self.put("isset(");
                self.exprs(operands.as_slice(), *comma);
                self.put(")");
            }
            Form::Empty(inner) => self.enclosed("empty(", inner.get(), ")"),
            Form::Exit(arguments) => {
                self.token(&e.first);
                self.called(arguments);
            }
            Form::New(class, arguments) => {
                self.put("(new ");
                self.class(class);
                self.called(arguments);
                self.put(")");
            }
            Form::Match {
                subject,
                arms,
                comma,
            } => {
                self.enclosed("match(", subject.get(), ") {");
                self.arms(arms.as_slice());
                self.flag(*comma, ",");
                self.put("}");
            }
            Form::Closure {
                is_static,
                by_reference,
                parameters,
                comma,
                captures,
                captures_comma,
                result: returned,
                body,
            } => {
                self.function(*is_static, "function ", *by_reference);
                self.parameters(parameters.as_slice(), *comma);
                self.captures(captures.as_slice(), *captures_comma);
                self.declared(": ", returned, "");
                self.body(body);
                self.put(")");
            }
            Form::Arrow {
                is_static,
                by_reference,
                parameters,
                comma,
                result: returned,
                value,
            } => {
                self.function(*is_static, "fn ", *by_reference);
                self.parameters(parameters.as_slice(), *comma);
                self.declared(": ", returned, "");
                self.enclosed(" => ", value.get(), ")");
            }
            Form::Text(parts) => self.parts(parts.as_slice()),
            Form::Post(inner, suffixes) => {
                self.begins(&e.first, inner.get());
                self.enclosed("{", inner.get(), "");
                self.suffixes(suffixes.as_slice());
            }
            Form::Prefix(operator, inner) => {
                self.put("(");
                self.put(prefix_mark(*operator));
                self.enclosed(" ", inner.get(), ")");
            }
            Form::Assignment(target, operator, value) => {
                self.begins(&e.first, target.get());
                self.enclosed("(", target.get(), " ");
                self.put(assignment_mark(*operator));
                self.enclosed(" ", value.get(), ")");
            }
            Form::Chain(inner, operations) => {
                self.begins(&e.first, inner.get());
                self.enclosed("(", inner.get(), "");
                self.operations(operations.as_slice());
            }
            Form::Binary(left, token, operator, right) => {
                self.begins(&e.first, left.get());
                self.enclosed("(", left.get(), " ");
                self.sign(token, *operator);
                self.enclosed(" ", right.get(), ")");
            }
            Form::Conditional(condition, then, otherwise) => {
                self.begins(&e.first, condition.get());
                self.enclosed("(", condition.get(), " ? ");
                self.enclosed("", then.get(), " : ");
                self.enclosed("", otherwise.get(), ")");
            }
        }
    }

    #[cycle(shown)]
    fn enclosed(&mut self, before: &str, e: &Expr, behind: &str) {
        self.put(before);
        self.expr(e);
        self.put(behind);
    }

    #[cycle(shown)]
    fn exprs(&mut self, list: &[Expr], comma: bool) {
        for e in list {
            self.item();
            self.expr(e);
        }
        self.flag(comma, ",");
    }

    #[cycle(shown)]
    fn called(&mut self, arguments: &Option<Arguments>) {
        match arguments {
            None => {}
            Some(arguments) => self.arguments(arguments),
        }
    }

    #[cycle(shown)]
    fn arguments(&mut self, arguments: &Arguments) {
        self.put("(");
        for argument in arguments.list.as_slice() {
            self.item();
            match argument {
                Argument::Positional(e) => self.expr(e),
                Argument::Spread(e) => self.enclosed("...", e, ""),
                Argument::Named(name, e) => {
                    self.token(name);
                    self.enclosed(": ", e, "");
                }
            }
        }
        self.flag(arguments.comma, ",");
        self.put(")");
    }

    #[cycle(shown)]
    fn elements(&mut self, before: &str, elements: &[Element], comma: bool) {
        self.put(before);
        for element in elements {
            self.item();
            match element {
                Element::Spread(e) => self.enclosed("...", e, ""),
                Element::Value {
                    by_reference,
                    value,
                } => {
                    self.flag(*by_reference, "&");
                    self.expr(value);
                }
                Element::Keyed {
                    key,
                    by_reference,
                    value,
                } => {
                    self.enclosed("", key, " => ");
                    self.flag(*by_reference, "&");
                    self.expr(value);
                }
            }
        }
        self.flag(comma, ",");
        self.put("]");
    }

    #[cycle(shown)]
    fn parameters(&mut self, parameters: &[Parameter], comma: bool) {
        self.put("(");
        for parameter in parameters {
            self.item();
            self.put(visibility_mark(parameter.visibility));
            self.declared("", &parameter.declared, " ");
            self.flag(parameter.by_reference, "&");
            self.flag(parameter.is_variadic, "...");
            self.token(&parameter.variable);
            match &parameter.default {
                None => {}
                Some(e) => self.enclosed(" = ", e.get(), ""),
            }
        }
        self.flag(comma, ",");
        self.put(")");
    }

    #[cycle(shown)]
    fn arms(&mut self, arms: &[Arm]) {
        for arm in arms {
            match arm {
                Arm::Conditions {
                    conditions,
                    comma,
                    value,
                } => {
                    self.exprs(conditions.as_slice(), *comma);
                    self.enclosed(" => ", value, "");
                }
                Arm::Default { comma, value } => {
                    self.item();
                    self.put("default");
                    self.flag(*comma, ",");
                    self.enclosed(" => ", value, "");
                }
            }
        }
    }

    #[cycle(shown)]
    fn class(&mut self, class: &ClassReference) {
        match class {
            ClassReference::Named(name) => self.token(name),
            ClassReference::Variable(name, suffixes) => {
                self.put("{");
                self.token(name);
                self.suffixes(suffixes.as_slice());
            }
            ClassReference::Scoped(name, variable, suffixes) => {
                self.put("{");
                self.token(name);
                self.put("::");
                self.token(variable);
                self.suffixes(suffixes.as_slice());
            }
            ClassReference::Computed(e) => self.enclosed("group(", e.get(), ")"),
        }
    }

    #[cycle(shown)]
    fn member(&mut self, name: &MemberName) {
        self.put("->");
        match name {
            MemberName::Named(name) => self.token(name),
            MemberName::Computed(e) => self.enclosed("{", e.get(), "}"),
        }
    }

    #[cycle(shown)]
    fn suffixes(&mut self, suffixes: &[Suffix]) {
        for suffix in suffixes {
            self.put(" ");
            match suffix {
                Suffix::Push => self.put("[]"),
                Suffix::Index(e) => self.enclosed("[", e.get(), "]"),
                Suffix::Property {
                    nullsafe,
                    name,
                    arguments,
                } => {
                    self.flag(*nullsafe, "?");
                    self.member(name);
                    self.called(arguments);
                }
                Suffix::Scoped(name, arguments) => {
                    self.put("::");
                    self.token(name);
                    self.called(arguments);
                }
                Suffix::Call(arguments) => self.arguments(arguments),
                Suffix::Increment => self.put("++"),
                Suffix::Decrement => self.put("--"),
            }
        }
        self.put("}");
    }

    #[cycle(shown)]
    fn operations(&mut self, operations: &[Operation]) {
        for operation in operations {
            self.put(" ");
            self.sign(&operation.token, operation.operator);
            self.enclosed(" ", &operation.operand, "");
        }
        self.put(")");
    }

    #[cycle(shown)]
    fn parts(&mut self, parts: &[TextPart]) {
        self.put("\"");
        for part in parts {
            match part {
                TextPart::Token(token) => {
                    self.put("<");
                    self.token(token);
                    self.put(">");
                }
                TextPart::Expression(e) => self.enclosed("{", e, "}"),
            }
        }
        self.put("\"");
    }
}

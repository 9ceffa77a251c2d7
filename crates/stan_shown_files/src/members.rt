//! Members of classes, interfaces and traits.

use crate::functions::{may_block, parameters};
use crate::values::{constants, variables};
use crate::words::{apart, begin, may_word, open, words, words_before};
use sqlite_items::Items;
use stan_model_grammar::token::{Token, TokenKind};
use stan_shown_trees::Printer;
use stan_stmt_trees::{Adaptation, Adapting, ClassMember, Member};

/// Members in braces.
#[cycle(shown)]
pub fn members(printer: &mut Printer<'_>, list: &[ClassMember]) {
    printer.put(" {");
    for part in list {
        apart(printer);
        printer.line(&part.first, " ");
        member(printer, &part.first, &part.form);
    }
    printer.put("}");
}

#[cycle(shown)]
fn member(printer: &mut Printer<'_>, first: &Token, part: &Member) {
    match part {
        Member::TraitUse {
            traits,
            adaptations: list,
        } => {
            open(printer, first, TokenKind::Use, "(use ");
            words(printer, traits.as_slice());
            adaptations(printer, list);
        }
        Member::Constants {
            modifiers,
            constants: list,
        } => {
            begin(printer, first, modifiers.as_slice(), TokenKind::Const);
            printer.put("(");
            words_before(printer, modifiers.as_slice(), " ");
            printer.put("const ");
            constants(printer, list.as_slice());
        }
        Member::Method {
            modifiers,
            by_reference,
            name,
            parameters: list,
            comma,
            result: returned,
            body,
        } => {
            begin(printer, first, modifiers.as_slice(), TokenKind::Function);
            printer.put("(");
            words_before(printer, modifiers.as_slice(), " ");
            printer.put("function ");
            printer.flag(*by_reference, "&");
            printer.token(name);
            parameters(printer, list.as_slice(), *comma);
            printer.declared(": ", returned, "");
            may_block(printer, " {", body, "}");
        }
        Member::Properties {
            modifiers,
            declared,
            variables: list,
        } => {
            begin(printer, first, modifiers.as_slice(), TokenKind::End);
            printer.put("(");
            modifiers_of_properties(printer, modifiers.as_slice());
            printer.declared("", declared, " ");
            variables(printer, list.as_slice());
        }
    }
    printer.put(")");
}

fn modifiers_of_properties(printer: &mut Printer<'_>, modifiers: &[Token]) {
    for modifier in modifiers {
        apart_in_brackets(printer);
        printer.token(modifier);
    }
    printer.put(": ");
}

fn apart_in_brackets(printer: &mut Printer<'_>) {
    match printer.text.as_bytes().last() {
        Some(b'(') => {}
        _ => printer.put(" "),
    }
}

// Adaptations in braces, or nothing.
fn adaptations(printer: &mut Printer<'_>, list: &Option<Items<Adaptation>>) {
    match list {
        None => {}
        Some(list) => {
            printer.put(" {");
            for part in list.as_slice() {
                apart(printer);
                adaptation(printer, part);
            }
            printer.put("}");
        }
    }
}

fn adaptation(printer: &mut Printer<'_>, part: &Adaptation) {
    printer.put("(");
    may_word(printer, "", &part.from, "::");
    printer.token(&part.method);
    match &part.adapting {
        Adapting::InsteadOf(traits) => {
            printer.put(" insteadof ");
            words(printer, traits.as_slice());
        }
        Adapting::Alias { visibility, name } => {
            printer.put(" as");
            may_word(printer, " ", visibility, ":");
            may_word(printer, " ", name, "");
        }
    }
    printer.put(")");
}

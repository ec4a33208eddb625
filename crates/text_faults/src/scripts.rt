//! Lines of lab scripts: what a line that is none should be.
ghost use Rattle.std.specs.Prelude.{◌≡◌, IfOk, map, option_map, string_bytes};
ghost use Rattle.text_faults.specs.Scripts.{form_of, forms, line_sentence, script_sentence};
ghost use Rattle.text_faults.specs.private.Scripts.{form_model};

use crate::fronts::first_word;
use crate::showing::{about_word, said};
use std::alloc::{AllocError, Global};

/// A word that begins a line, and the form of such a line.
struct Form {
    word: &'static str,
    line: &'static str,
}

const FORMS: &[Form] = &[
    Form {
        word: "replicas",
        line: "another line: 'replicas' comes first, and once",
    },
    Form {
        word: "request",
        line: "'request R C N OP', OP being noop, add DN|type: value|.., delete DN or hex MESSAGE",
    },
    Form {
        word: "search",
        line: "'search R NAMED BASE|SCOPE|FILTER', SCOPE being base, one or sub",
    },
    Form {
        word: "deliver",
        line: "'deliver K ..', with numbers of messages",
    },
    Form {
        word: "suspect",
        line: "'suspect R', with a replica",
    },
    Form {
        word: "beat",
        line: "'beat R', with a replica",
    },
    Form {
        word: "crash",
        line: "'crash R', with a replica",
    },
    Form {
        word: "recover",
        line: "'recover R X', with a replica and a nonce",
    },
    Form {
        word: "resume",
        line: "'resume R' or 'resume R K', with a replica and how much it has committed at most",
    },
    Form {
        word: "state",
        line: "'state R', with a replica",
    },
];

/// The form, among these, of a line that begins so.
fn form_among(forms: &[Form], word: &[u8]) -> Option<&'static str>
    ensures { option_map (λ x. x.now) result ≡ form_of (map form_model forms.now) word.now }
{
    for form in forms {
        if word == form.word.as_bytes() {
            return Some(form.line);
        }
    }
    None
}

/// What a line should be that begins with a word.
fn line_fault(alloc: Global, word: &[u8]) -> Result<String, AllocError>
    ensures { IfOk result (λ s. string_bytes s ≡ line_sentence word.now (form_of forms word.now)) }
{
    match form_among(FORMS, word) {
        Some(form) => format!(in alloc; "expected {form}"),
        None if word.is_empty() => said(alloc, "the line is empty, or begins with a space"),
        None => about_word(alloc, "no line begins with '", word, "'"),
    }
}

/// What a line of a script, counted from 1, should be where it is none.
pub fn script_fault(alloc: Global, line: &[u8], number: u64) -> Result<String, AllocError>
    ensures { IfOk result (λ s. string_bytes s ≡ script_sentence line.now number) }
{
    if number == 1 {
        return said(alloc, "expected 'replicas 3', 5 or 7");
    }
    line_fault(alloc, first_word(line))
}

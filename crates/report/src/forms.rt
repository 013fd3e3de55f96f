ghost use Rattle.report.specs.Forms.{entry_sentence, form_sentence};
ghost use Rattle.layout.specs.Entries.{GoodEntry};
ghost use Rattle.layout.specs.Forms.{BadForm};
ghost use Rattle.layout.specs.Places.{spelling_at};
ghost use Rattle.std.specs.Prelude.{◌≡◌, IfOk, string_bytes};

use layout::{EntryFault, FormFault, spelling_in};
use std::alloc::{AllocError, Global};
use std::str;

/// The spelling of word `i`, whose entry is right.
fn spelled(heap: Global, bytes: &[u8], i: u8) -> Result<String, AllocError>
    requires { GoodEntry bytes.now i }
    ensures { IfOk result (λ s. string_bytes s ≡ spelling_at bytes.now i) }
{
    let spelling = spelling_in(bytes, i).unwrap();
    String::from_str(heap, str::from_utf8(spelling).unwrap())
}

/// What is wrong with the entry of word `i`.
fn entry_sentence(
    heap: Global,
    bytes: &[u8],
    i: u8,
    fault: EntryFault,
) -> Result<String, AllocError>
    requires { BadForm bytes.now (FormFault.Entry i fault) }
    ensures { IfOk result (λ s. string_bytes s ≡ entry_sentence bytes.now i fault) }
{
    match fault {
        EntryFault::Cut => format!(in heap; "The book ends within the entry of word {i}."),
        EntryFault::Arity => format!(in heap; "Word {i} takes more than 6 arguments."),
        EntryFault::Length => format!(in heap;
            "The spelling of word {i} has no character, or more than 16."
        ),
        EntryFault::Spelling => format!(in heap;
            "The spelling of word {i} is no small letter followed by small letters, digits and hyphens."
        ),
        EntryFault::Repeated(j) => {
            let spelling = spelled(heap, bytes, j)?;
            format!(in heap; "Word {i} is spelled {spelling}, as word {j} is.")
        }
    }
}

/// What is wrong with the form of a book.
pub fn form_sentence(heap: Global, bytes: &[u8], fault: FormFault) -> Result<String, AllocError>
    requires { BadForm bytes.now fault }
    ensures { IfOk result (λ s. string_bytes s ≡ form_sentence bytes.now fault) }
{
    match fault {
        FormFault::Short => String::from_str(heap, "A book has at least 5 bytes."),
        FormFault::Length => String::from_str(
            heap,
            "The first two bytes do not say how many bytes come after them.",
        ),
        FormFault::Version(version) => format!(in heap;
            "Version {version} is unknown; version 1 is known."
        ),
        FormFault::Kind(kind) => format!(in heap;
            "Kind {kind} is unknown; 1 is marks, 2 is lines."
        ),
        FormFault::Count(count) => format!(in heap; "A book has 1 to 128 words, not {count}."),
        FormFault::Entry(i, fault) => entry_sentence(heap, bytes, i, fault),
        FormFault::TableCut => String::from_str(
            heap,
            "The book ends before its table of likenesses does.",
        ),
        FormFault::LeftOver => String::from_str(
            heap,
            "Bytes are left over behind the table of likenesses.",
        ),
    }
}

//! The tokens of the methods that each declared class introduces.

ghost use Rattle.som_class_table.specs.Kept.{AreIntroduced};
ghost use Rattle.som_meta.specs.Numbering.{tokens_from};
ghost use Rattle.som_model.specs.Class.{introduced};
ghost use Rattle.som_class_methods.specs.Owners.{AreFaces};
ghost use Rattle.std.specs.Prelude.{◌≡◌, ◌==◌, ◌<◌, ◌∷◌, [], IfOk, length};

use som_class_ids::Numbers;
use som_model::{Entry, List, NoMemory};
use som_tables::{ClassNo, MToken, Token};
use std::alloc::Global;

/// The tokens of a class for so many methods.
fn class_tokens(alloc: Global, class: ClassNo, count: u16) -> Result<List<MToken>, NoMemory>
    ensures { IfOk result (λ tokens. tokens ≡ tokens_from class 0 count) }
{
    let mut tokens = List::new(alloc);
    for place in 0..count {
        tokens.push(Token::new(class, place))?;
    }
    Ok(tokens)
}

fn is_introduced(entry: &Entry) -> bool
    ensures { result ≡ (length (introduced (entry.now ∷ [])) == 1) }
{
    match entry {
        Entry::Introduced { .. } => true,
        Entry::Moved { .. } => false,
    }
}

/// How many of the entries introduce methods.
fn introduced_count(entries: &[Entry]) -> u16
    requires { length entries.now < 65536 }
    ensures { result ≡ length (introduced entries.now) }
{
    let mut count = 0;
    for entry in entries {
        if is_introduced(entry) {
            count += 1;
        }
    }
    count
}

/// Of each declared class the tokens of what it introduces.
pub(crate) fn introduced_tokens(
    alloc: Global,
    numbers: &Numbers,
) -> Result<List<List<MToken>>, NoMemory>
    requires { AreFaces numbers.now.classes }
    ensures { IfOk result (λ all. AreIntroduced numbers.now all) }
{
    let mut all = List::new(alloc);
    for number in 0..numbers.declared_count() {
        let class = ClassNo::new(number);
        let count = introduced_count(numbers.declared(class).decl.face.entries.as_slice());
        all.push(class_tokens(alloc, class, count)?)?;
    }
    Ok(all)
}

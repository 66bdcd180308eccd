//! One class's overrides and selects as tokens, and the search for a token among them.

ghost use Rattle.som_class_methods.specs.Members.{Exist, HaveTokens, IsFirst, IsNotBefore, override_method, select_method};
ghost use Rattle.som_class_methods.specs.Own.{IsOwn};
ghost use Rattle.som_class_methods.specs.Owners.{AreFaces};
ghost use Rattle.som_class_methods.specs.Tokens.{IsOwners};
ghost use Rattle.std.specs.Prelude.{◌≡◌, ◌↔◌, IfNone, IfOk, IfSome, IsTrue, length, map};

use crate::Owners;
use som_class_ids::Numbers;
use som_model::{ClassDecl, List, NoMemory, Override, Select};
use som_tables::MToken;
use std::alloc::Global;

/// The tokens of the methods that a class overrides, and of those for which it selects a parent, each in their order.
#[derive(Drop)]
pub(crate) struct Own {
    pub(crate) overrides: List<MToken>,
    pub(crate) selects: List<MToken>,
}

fn override_tokens(
    alloc: Global,
    numbers: &Numbers,
    owners: &Owners,
    overrides: &[Override],
) -> Result<List<MToken>, NoMemory>
    requires owners { IsOwners numbers.now owners.now }
    requires faces { AreFaces numbers.now.classes }
    requires named { Exist numbers.now.classes (map override_method overrides.now) }
    ensures { IfOk result (λ ts. HaveTokens numbers.now (map override_method overrides.now) ts) }
{
    let mut tokens = List::new(alloc);
    for one in overrides {
        tokens.push(owners.method_token(numbers, &one.method))?;
    }
    Ok(tokens)
}

fn select_tokens(
    alloc: Global,
    numbers: &Numbers,
    owners: &Owners,
    selects: &[Select],
) -> Result<List<MToken>, NoMemory>
    requires owners { IsOwners numbers.now owners.now }
    requires faces { AreFaces numbers.now.classes }
    requires named { Exist numbers.now.classes (map select_method selects.now) }
    ensures { IfOk result (λ ts. HaveTokens numbers.now (map select_method selects.now) ts) }
{
    let mut tokens = List::new(alloc);
    for one in selects {
        tokens.push(owners.method_token(numbers, &one.method))?;
    }
    Ok(tokens)
}

/// The tokens of one class.
pub(crate) fn own_tokens(
    alloc: Global,
    numbers: &Numbers,
    owners: &Owners,
    class: &ClassDecl,
) -> Result<Own, NoMemory>
    requires owners { IsOwners numbers.now owners.now }
    requires faces { AreFaces numbers.now.classes }
    requires overrides { Exist numbers.now.classes (map override_method class.now.overrides) }
    requires selects { Exist numbers.now.classes (map select_method class.now.selects) }
    ensures { IfOk result (λ own. IsOwn numbers.now class.now own) }
{
    let overrides = override_tokens(alloc, numbers, owners, class.overrides.as_slice())?;
    let selects = select_tokens(alloc, numbers, owners, class.selects.as_slice())?;
    Ok(Own { overrides, selects })
}

fn is_same(a: MToken, b: MToken) -> bool
    ensures { IsTrue result ↔ (a ≡ b) }
{
    a == b
}

/// The place of the first token that is this one.
pub(crate) fn token_place(tokens: &[MToken], token: MToken) -> Option<usize>
    ensures some { IfSome result (λ place. IsFirst tokens.now token place) }
    ensures none { IfNone result (IsNotBefore tokens.now token (length tokens.now)) }
{
    for place in 0..tokens.len() {
        if is_same(tokens[place], token) {
            return Some(place);
        }
    }
    None
}

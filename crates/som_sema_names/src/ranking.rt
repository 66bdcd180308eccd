//! The ranks of classes on a list of ancestors, by which the first introducer of a name is found.

ghost use Rattle.som_sema_names.specs.Introducers as spec;
ghost use Rattle.som_sema_names.specs.Introducers.{AreIntroducers, stands};
ghost use Rattle.som_sema_names.specs.Ranking.{AreRanks, IsRanking, rank_from};
ghost use Rattle.som_model.specs.Class.{Class};
ghost use Rattle.som_model.specs.Lists.{Mem};
ghost use Rattle.std.specs.Prelude.{◌≡◌, ◌<◌, ℕ, [], List as Seq, length, slice_get, slice_index_or, slice_set, IfOk};

use crate::introducers::Introducers;
use som_model::{List, NoMemory};
use som_order::find_name;
use std::alloc::Global;

/// The classes that introduce each name, and a list of places of classes with the rank that each class has there.
#[derive(Drop)]
pub struct Ranking<'r, 'a> {
    pub introducers: &'r Introducers<'a>,
    pub list: &'r [usize],
    pub ranks: Vec<usize>,
}

/// The ranks on a list of places of classes, of which there are so many.
pub fn ranking_of<'r, 'a>(
    alloc: Global,
    introducers: &'r Introducers<'a>,
    list: &'r [usize],
    number: usize,
) -> Result<Ranking<'r, 'a>, NoMemory>
    requires { (p : ℕ) → Mem p list.now → p < number }
    ensures { (cs : Seq Class) → AreIntroducers cs introducers.now → number ≡ length cs → IfOk result (IsRanking cs list.now) }
{
    let ranks = ranks(alloc, list, number)?;
    Ok(Ranking {
        introducers,
        list,
        ranks,
    })
}

fn ranks(alloc: Global, list: &[usize], number: usize) -> Result<Vec<usize>, NoMemory>
    requires { (p : ℕ) → Mem p list.now → p < number }
    ensures { IfOk result (λ all. AreRanks list.now number all.items) }
{
    let mut all = Vec::new(alloc);
    all.resize(number, list.len())?;
    rank_all(&mut all, list);
    Ok(all)
}

// The first on the list is ranked last, so that where a place stands twice its first rank stays.
fn rank_all(ranks: &mut [usize], list: &[usize])
    requires low { (p : ℕ) → Mem p list.now → p < length ranks.old }
    requires none { (p : ℕ) → p < length ranks.old → slice_index_or ranks.old p 0 ≡ length list.now }
    ensures { AreRanks list.now (length ranks.old) ranks.new }
{
    let mut rank = list.len();
    while rank > 0 {
        rank -= 1;
        set_rank(ranks, list[rank], rank);
    }
}

fn set_rank(ranks: &mut [usize], place: usize, rank: usize)
    requires { place < length ranks.old }
    ensures { ranks.new ≡ slice_set ranks.old place rank }
{
    ranks[place] = rank;
}

/// The first class on the list that introduces a name.
pub fn first_introducer(ranking: &Ranking, name: &[u8]) -> Option<usize>
    requires { (cs : Seq Class) × ((list : Seq ℕ) × IsRanking cs list ranking.now) }
    ensures { (cs : Seq Class) (list : Seq ℕ) → IsRanking cs list ranking.now → result ≡ spec.first_introducer cs list name.now }
{
    match find_name(&ranking.introducers.names, name) {
        None => None,
        Some(index) => {
            let places = places_at(ranking.introducers.places.as_slice(), index);
            let rank = least_rank(ranking.list, ranking.ranks.as_slice(), places);
            place_at(ranking.list, rank)
        }
    }
}

fn place_at(list: &[usize], rank: usize) -> Option<usize>
    ensures { result ≡ slice_get list.now rank }
{
    list.get(rank).copied()
}

/// The places that stand at an index.
pub fn places_at(places: &[List<usize>], index: usize) -> &[usize]
    requires { index < length places.now }
    ensures { result.now ≡ slice_index_or places.now index [] }
{
    places[index].as_slice()
}

// The least rank of these places.
fn least_rank(list: &[usize], ranks: &[usize], places: &[usize]) -> usize
    requires low { (p : ℕ) → Mem p places.now → p < length ranks.now }
    requires ranks { AreRanks list.now (length ranks.now) ranks.now }
    ensures { result ≡ rank_from 0 (λ x. stands x places.now) list.now }
{
    let mut least = list.len();
    for place in places {
        let rank = rank_at(ranks, *place);
        if rank < least {
            least = rank;
        }
    }
    least
}

fn rank_at(ranks: &[usize], place: usize) -> usize
    requires { place < length ranks.now }
    ensures { result ≡ slice_index_or ranks.now place 0 }
{
    ranks[place]
}

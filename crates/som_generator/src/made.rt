//! The types of what the generator makes: releases and a client, each with its image.

use som_model::{ClientProgram, List, Release};

/// The release that the texts of a library stand for, and its image.
#[derive(Drop)]
pub struct Library {
    pub release: Release,
    pub image: List<u8>,
}

/// The client program that the texts of a client stand for, and its image.
#[derive(Drop)]
pub struct Client {
    pub program: ClientProgram,
    pub image: List<u8>,
}

/// What comes of the generator's texts: both releases, and the client that is compiled against the first. Its main is to run on
/// the second.
#[derive(Drop)]
pub struct Made {
    pub first: Library,
    pub second: Library,
    pub client: Client,
}

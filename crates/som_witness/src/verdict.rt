//! What is answered of an older and a newer interface.

use som_model::{ClientProgram, Text};

/// The texts of a client, each of one line: its interface file, its bodies and its main. The bodies are
/// empty where its class has none.
#[derive(Drop)]
pub struct Texts {
    pub idl: Text,
    pub bodies: Text,
    pub main: Text,
}

/// Whether the newer interface keeps what the older one promised.
#[derive(Drop)]
pub enum Verdict {
    /// It keeps all.
    Accepted,
    /// The class has another major version, or a lower minor one: no client can show that.
    VersionOnly {
        class: Text,
    },
    /// It breaks this rule of this class, and the program shows it: the program was compiled against the
    /// older interface, and the newer one refuses it. Texts say the program where some can.
    Shown {
        rule: u8,
        class: Text,
        name: Option<Text>,
        place: u32,
        program: ClientProgram,
        texts: Option<Texts>,
    },
}

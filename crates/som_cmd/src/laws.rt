//! States that there is one answer to any words and files, which words are numbers, that what is compiled can be shown, checked and run, and what a witness is worth.

ghost use Rattle.som_cmd.specs.Answer.{IsAnswer};
ghost use Rattle.som_cmd.specs.Chain.{ClientPuts, LibraryPuts};
ghost use Rattle.som_cmd.specs.Ends.{AreChecked, AreImagesOf, AreNewest, IsImageOf, IsImageOfClient};
ghost use Rattle.som_cmd.specs.PutEnds.{AreClientTextsOf, PutsImage, PutsProgram};
ghost use Rattle.som_cmd.specs.Witnessing.{HoldsEach, WitnessPuts};
ghost use Rattle.som_cmd.specs.Words.{Asked, Check, Client, Run, Show, asked, count_of, fuel_of, is_name};
ghost use Rattle.som_generator.specs.declared.limits.TheConstants.{MAX_CLASSES};
ghost use Rattle.som_model.specs.Bytes.{Files};
ghost use Rattle.som_model.specs.Class.{interface_of};
ghost use Rattle.som_model.specs.Compatible.{Accepted, CompatBreach, first_break};
ghost use Rattle.som_model.specs.declared.program.ClientProgram.{ClientProgram};
ghost use Rattle.som_model.specs.declared.program.Release.{Release};
ghost use Rattle.som_model.specs.declared.limits.TheConstants.{MAX_FUEL};
ghost use Rattle.som_cmd_steps.specs.Endings.{Ending};
ghost use Rattle.som_sources.specs.Sources.{names_of};
ghost use Rattle.som_witness.specs.Program.{witness_program};
ghost use Rattle.som_witness.specs.Wording.{witness_texts};
ghost use Rattle.som_witness.specs.declared.verdict.Texts.{Texts};
ghost use Rattle.som_witness_texts.specs.Files.{files_of};
ghost use Rattle.std.specs.Fmt.{decimal};
ghost use Rattle.std.specs.Prelude.{Bool, List, Option, Some, [], codes, slice_get, true, ℕ, ◌++◌, ◌↔◌, ◌∷◌, ◌≡◌, ◌≢◌, ◌≤◌};

/// Whatever the words and the files are, there is one answer, and no other.
pub fn answer_law()
    ensures some { (files : Files) (words : List (List ℕ)) → (told : Ending) × IsAnswer files (asked words) told }
    ensures one { (files : Files) (what : Asked) (a b : Ending) → IsAnswer files what a → IsAnswer files what b → a ≡ b }
{}

/// The fuel of a word is the number of which the word is the decimal spelling, if it is no greater than may be asked for.
pub fn fuel_law()
    ensures { (word : List ℕ) (n : ℕ) → (fuel_of word ≡ Some n) ↔ ((word ≡ decimal n) × (n ≤ MAX_FUEL)) }
{}

/// The count of a word is the number of which the word is the decimal spelling, if it is at least one and so many classes can be generated.
pub fn count_law()
    ensures { (word : List ℕ) (n : ℕ) → (count_of word ≡ Some n) ↔ ((word ≡ decimal n) × (1 ≤ n) × (n ≤ MAX_CLASSES)) }
{}

/// What `library` and `client` put is what `run`, `show` and `check` ask for, and it stays until something is put under its name.
pub fn chain_law()
    // After `library` and then `client` against its release, `run` on these names has all that its clause on the newest of releases asks for.
    ensures first { (start built linked : Option Files) (client library : List ℕ) (r : Release) (p : ClientProgram) (fuel : ℕ) (shows : List ℕ → Bool) →
        LibraryPuts start library r built → (call : ClientPuts built client library p linked) → client ≢ library →
        AreNewest (Run client library fuel shows) linked [] r 0 call.made.texts.texts p fuel shows }

    // So it has on any later release that is there, where each release of a list with both was accepted against the one before it.
    ensures later { (built linked files : Option Files) (client library newer : List ℕ) (earlier : List Release) (newest : Release) (place : ℕ) (p : ClientProgram) (fuel : ℕ) (shows : List ℕ → Bool) →
        (call : ClientPuts built client library p linked) → IsImageOfClient (Show client) files p → IsImageOf (Show newer) files newest →
        Accepted (earlier ++ newest ∷ []) → slice_get (earlier ++ newest ∷ []) place ≡ Some call.made.texts.base →
        AreNewest (Run client newer fuel shows) files earlier newest place call.made.texts.texts p fuel shows }

    // The client is compiled against the release whose image is there, put by a call before or long before.
    ensures base { (built linked : Option Files) (client library : List ℕ) (r : Release) (p : ClientProgram) →
        IsImageOf (Show library) built r → (call : ClientPuts built client library p linked) → call.made.texts.base ≡ r }

    // What was put can be shown, and two releases can be checked.
    ensures release { (files new_files : Option Files) (out : List ℕ) (r : Release) → LibraryPuts files out r new_files → IsImageOf (Show out) new_files r }
    ensures program { (files new_files : Option Files) (out library : List ℕ) (p : ClientProgram) → ClientPuts files out library p new_files → IsImageOfClient (Show out) new_files p }
    ensures checked { (files : Option Files) (a b : List ℕ) (r s : Release) → IsImageOf (Show a) files r → IsImageOf (Show b) files s → AreChecked (Check (a ∷ b ∷ [])) files (a ∷ b ∷ []) (r ∷ s ∷ []) }

    // It stays where something is put under another name.
    ensures release_stays { (image_is : Option (List ℕ)) (files new_files : Option Files) (name out : List ℕ) (status : ℕ) (old new : Option (List ℕ)) (r : Release) →
        IsImageOf (Show name) files r → PutsImage image_is files out status new_files old new → name ≢ out → IsImageOf (Show name) new_files r }
    ensures program_stays { (image_is : Option (List ℕ)) (files new_files : Option Files) (name out : List ℕ) (status : ℕ) (old new : Option (List ℕ)) (p : ClientProgram) →
        IsImageOfClient (Show name) files p → PutsImage image_is files out status new_files old new → name ≢ out → IsImageOfClient (Show name) new_files p }
{}

/// What `witness` puts of a breach is a client of the older release that is refused for this very breach: by the newer release, and by every other with its interface.
pub fn witness_chain_law()
    // Run on the newer release, with any fuel and any calls shown, it has all that the clause of `run` on a release that doesn't keep all asks for.
    ensures refused { (files new_files : Option Files) (out older newer : List ℕ) (o n : Release) (b : CompatBreach) (fuel : ℕ) (shows : List ℕ → Bool) →
        WitnessPuts files out older newer o n b new_files → newer ≢ out →
        AreImagesOf (Run out newer fuel shows) new_files out newer (witness_program (interface_of o) (interface_of n) b) n fuel shows
        × (first_break (witness_program (interface_of o) (interface_of n) b).base (interface_of n) ≡ Some b) }

    // So it has, as long as it is there, on any release with that interface.
    ensures later { (files new_files later_files : Option Files) (out older newer library : List ℕ) (o n r : Release) (b : CompatBreach) (fuel : ℕ) (shows : List ℕ → Bool) →
        WitnessPuts files out older newer o n b new_files → interface_of r ≡ interface_of n →
        IsImageOfClient (Show out) later_files (witness_program (interface_of o) (interface_of n) b) → IsImageOf (Show library) later_files r →
        AreImagesOf (Run out library fuel shows) later_files out library (witness_program (interface_of o) (interface_of n) b) r fuel shows
        × (first_break (witness_program (interface_of o) (interface_of n) b).base (interface_of r) ≡ Some b) }

    // It was compiled against the older release, and runs there.
    ensures base { (o n : Release) (b : CompatBreach) → (witness_program (interface_of o) (interface_of n) b).base ≡ interface_of o }

    // It can be shown.
    ensures program { (files new_files : Option Files) (out older newer : List ℕ) (o n : Release) (b : CompatBreach) →
        WitnessPuts files out older newer o n b new_files → IsImageOfClient (Show out) new_files (witness_program (interface_of o) (interface_of n) b) }

    // What stands under other names stays.
    ensures release_stays { (files new_files : Option Files) (out older newer name : List ℕ) (o n r : Release) (b : CompatBreach) →
        WitnessPuts files out older newer o n b new_files → name ≢ out → IsImageOf (Show name) files r → IsImageOf (Show name) new_files r }
    ensures program_stays { (files new_files : Option Files) (out older newer name : List ℕ) (o n : Release) (b : CompatBreach) (p : ClientProgram) →
        WitnessPuts files out older newer o n b new_files → name ≢ out → IsImageOfClient (Show name) files p → IsImageOfClient (Show name) new_files p }
{}

/// The texts that `witness` prints are compiled to the very image that it puts.
pub fn witness_texts_law()
    // Where the store holds them, and the older release's image, `client` on these names has all that its clause asks for, for the very client that shows the breach.
    ensures compiled { (files new_files later_files : Option Files) (out older newer library name : List ℕ) (o n : Release) (b : CompatBreach) (t : Texts) (told : Files) →
        WitnessPuts files out older newer o n b new_files → witness_texts (interface_of o) (interface_of n) b ≡ Some t →
        later_files ≡ Some told → HoldsEach told t → IsImageOf (Show library) later_files o →
        AreClientTextsOf (Client name library (names_of (files_of t))) later_files name (witness_program (interface_of o) (interface_of n) b) }

    // The words that ask for that: names of these files after two names that aren't empty.
    ensures words { (name library : List ℕ) (t : Texts) → is_name name ≡ true → is_name library ≡ true →
        asked (codes "client" ∷ name ∷ library ∷ names_of (files_of t)) ≡ Client name library (names_of (files_of t)) }

    // So what `client` puts then is, byte by byte, what `witness` has put.
    ensures same { (files new_files later_files last_files : Option Files) (out older newer name : List ℕ) (o n : Release) (b : CompatBreach) (status : ℕ) (old new : Option (List ℕ)) →
        (call : WitnessPuts files out older newer o n b new_files) → (made : PutsProgram later_files name (witness_program (interface_of o) (interface_of n) b) status last_files old new) →
        (call.told.tells.shown b call.unkept call.other).image ≡ made.puts.image }
{}

//! Programs above levels are within the counts where their flat classes are.

ghost use Rattle.som_level_programs.specs.Towers.{LevelProgram, by_level};
ghost use Rattle.som_model.specs.Class.{Class};
ghost use Rattle.som_model.specs.Classes.{client_classes, interface_classes, library_classes};
ghost use Rattle.som_model.specs.Counts.{ClassCounted, FaceCounted, block_counted};
ghost use Rattle.som_model.specs.Lists.{Mem};
ghost use Rattle.som_model.specs.declared.class.ClassDecl.{ClassDecl};
ghost use Rattle.som_model.specs.declared.class.ClassFace.{ClassFace};
ghost use Rattle.som_model.specs.declared.program.ClientProgram.{ClientProgram};
ghost use Rattle.som_model.specs.declared.program.Release.{Release};
ghost use Rattle.som_model.specs.declared.syntax.Block.{Block};
ghost use Rattle.som_rekey_laws.specs.Rekeying.{ModuleChange, rekey_block, rekey_decl, rekey_face};
ghost use Rattle.som_release_laws.specs.Releasing.{HaveParents, stacked};
ghost use Rattle.std.specs.Prelude.{◌≡◌, ◌+◌, ◌++◌, List as Seq, length, map, sum, true};

/// Classes within the counts have parents: those of a client program and of its base, and those of a release.
pub fn parents_law()
    ensures program { (p : ClientProgram) → ((f : ClassFace) → Mem f p.base.classes → FaceCounted f) →
        ((d : ClassDecl) → Mem d p.classes → ClassCounted d) → HaveParents (interface_classes p.base ++ client_classes p) }
    ensures release { (r : Release) → ((d : ClassDecl) → Mem d r.classes → ClassCounted d) → HaveParents (library_classes r) }
{}

/// Faces, classes and blocks under new keys are within the counts where they were, and so are the classes by
/// levels of libraries one above the other and of a client above them, which are as many as the flat ones.
pub fn counts_law()
    ensures faces { (change : ModuleChange) (f : ClassFace) → FaceCounted f → FaceCounted (rekey_face change f) }
    ensures classes { (change : ModuleChange) (d : ClassDecl) → ClassCounted d → ClassCounted (rekey_decl change d) }
    ensures blocks { (change : ModuleChange) (b : Block) → block_counted b ≡ true → block_counted (rekey_block change b) ≡ true }
    ensures tower { (r : Release) (ls : Seq LevelProgram) (l : LevelProgram) →
        ((d : ClassDecl) → Mem d r.classes → ClassCounted d) →
        ((x : LevelProgram) (d : ClassDecl) → Mem x ls → Mem d x.program.classes → ClassCounted d) →
        ((d : ClassDecl) → Mem d l.program.classes → ClassCounted d) →
        (c : Class) → Mem c (stacked (library_classes r) (map by_level ls) ++ (by_level l).own) → ClassCounted c.decl }
    ensures number { (r : Release) (ls : Seq LevelProgram) (l : LevelProgram) →
        length (stacked (library_classes r) (map by_level ls) ++ (by_level l).own) ≡
        length r.classes + sum (map (λ (x : LevelProgram). length x.program.classes) ls) + length l.program.classes }
{}

//! What is asked of a hierarchy over class numbers: ancestors, descent, own bodies and introduced methods.

ghost use Rattle.som_meta.specs.Numbering.{AreApart, AreNumbered, IsNumbered, IsToken, Numbering, key_at, method_at, tokens_of};
ghost use Rattle.som_model.specs.Classes.{ancestors as ancestors_of, is_a as descends};
ghost use Rattle.som_model.specs.Implementation.{has_body as has_own_body, is_kernel as is_kernel_key};
ghost use Rattle.som_model.specs.Kernel.{after_method, before_after as before_after_key, before_method};
ghost use Rattle.std.specs.Prelude.{◌≡◌, map};

use som_model::List;
use som_tables::{ClassNo, MToken};

/// A hierarchy over class numbers.
pub trait Ancestry {
    /// Its classes, and the key that each number stands for.
    ghost known: { Self → Numbering };

    /// Whether a class is another or descends from it.
    fn is_a(&self, class: ClassNo, ancestor: ClassNo) -> bool
        requires class { IsNumbered (known self.now) class }
        requires ancestor { IsNumbered (known self.now) ancestor }
        ensures { result ≡ descends (known self.now).classes (key_at (known self.now) class) (key_at (known self.now) ancestor) };

    /// A class and its ancestors, in the order of the definition.
    fn ancestors(&self, class: ClassNo) -> &List<ClassNo>
        requires { IsNumbered (known self.now) class }
        ensures numbered { AreNumbered (known self.now) result.now }
        ensures keys { map (key_at (known self.now)) result.now ≡ ancestors_of (known self.now).classes (key_at (known self.now) class) };

    /// Whether a class has a body of its own for a method.
    fn has_body(&self, class: ClassNo, token: MToken) -> bool
        requires class { IsNumbered (known self.now) class }
        requires token { IsToken (known self.now) token }
        ensures { result ≡ has_own_body (known self.now).classes (method_at (known self.now) token) (key_at (known self.now) class) };

    /// The tokens of the methods that a class introduces.
    fn introduced(&self, class: ClassNo) -> &List<MToken>
        requires { IsNumbered (known self.now) class }
        ensures { result.now ≡ tokens_of (known self.now) class };

    /// Whether a class is one of the kernel's.
    fn is_kernel(&self, class: ClassNo) -> bool
        requires { IsNumbered (known self.now) class }
        ensures { result ≡ is_kernel_key (key_at (known self.now) class) };

    /// The kernel's class SOMMBeforeAfter. Its first two methods are the one that runs before others and the one that runs after them.
    /// That no two numbers stand for one class is said here, since the hierarchy is asked for nothing else.
    fn before_after(&self) -> ClassNo
        ensures apart { AreApart (known self.now) }
        ensures numbered { IsNumbered (known self.now) result }
        ensures key { key_at (known self.now) result ≡ before_after_key }
        ensures before { IsToken (known self.now) (result, 0) }
        ensures before_is { method_at (known self.now) (result, 0) ≡ before_method }
        ensures after { IsToken (known self.now) (result, 1) }
        ensures after_is { method_at (known self.now) (result, 1) ≡ after_method };
}

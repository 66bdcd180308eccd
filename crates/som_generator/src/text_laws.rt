//! States what the generated texts are for three and for five classes, byte by byte.

ghost use Rattle.som_generator.specs.Generated.{bodies_text, interfaces_text, main_text};
ghost use Rattle.som_generator.specs.Written.{client_main, client_main_of_five, first_bodies, first_bodies_of_five, first_interfaces, first_interfaces_of_five, second_bodies, second_bodies_of_five, second_interfaces, second_interfaces_of_five};
ghost use Rattle.som_generator.specs.declared.edition.Edition.TheVariants as editions;
ghost use Rattle.std.specs.Prelude.{◌≡◌};

/// The texts of three classes, and those of five, are those that are written out.
pub fn written_law()
    ensures first_interfaces { interfaces_text editions.First 3 ≡ first_interfaces }
    ensures first_bodies { bodies_text editions.First 3 ≡ first_bodies }
    ensures second_interfaces { interfaces_text editions.Second 3 ≡ second_interfaces }
    ensures second_bodies { bodies_text editions.Second 3 ≡ second_bodies }
    ensures client_main { main_text 3 ≡ client_main }
    ensures first_interfaces_of_five { interfaces_text editions.First 5 ≡ first_interfaces_of_five }
    ensures first_bodies_of_five { bodies_text editions.First 5 ≡ first_bodies_of_five }
    ensures second_interfaces_of_five { interfaces_text editions.Second 5 ≡ second_interfaces_of_five }
    ensures second_bodies_of_five { bodies_text editions.Second 5 ≡ second_bodies_of_five }
    ensures client_main_of_five { main_text 5 ≡ client_main_of_five }
{}

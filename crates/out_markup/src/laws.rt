//! Laws of markup: empty functions, whose contracts are the laws.
ghost use Rattle.out_markup.specs.Markup.{NoNameMakesMarkup, NoPartMakesMarkup};

/// No name opens a tag, ends an attribute or makes an entity, whether it is shown whole or cut
/// short.
#[inline]
pub fn no_name_makes_markup()
    ensures whole { NoNameMakesMarkup }
    ensures part { NoPartMakesMarkup }
{}

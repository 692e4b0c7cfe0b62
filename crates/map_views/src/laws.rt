//! Laws of the fields as others see them, as functions that do nothing: each one's contract is the law.

ghost use Rattle.map_views.specs.Laws.{ViewsAreMachines};

/// The views of all fields are what the register machine sees.
pub fn views_are_machines()
    ensures { ViewsAreMachines }
{}

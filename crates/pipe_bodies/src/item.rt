use handoff_data::Line;

/// What goes through a ring: a line, or the one end.
#[derive(Drop)]
pub enum Item {
    Text(Line),
    End,
}

//! A journal tells of a refused draw only where its draw count has reached the number of ids.

ghost use Rattle.draw_counts.specs.Laws.{DrawnKeeps};

/// Each turn of a core keeps what holds between it and the journal: of each table the ids in use and the
/// draws that are owed are no more than the draw count, and each refused draw has its entry where that
/// count is at least the number of ids.
pub fn drawn_keeps()
    ensures { DrawnKeeps }
{}

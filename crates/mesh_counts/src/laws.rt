// The laws of the counts, on a contract so that the check asks for their proof.
ghost use Rattle.mesh_counts.specs.Laws.{Laws};

// Edges add up to half-edges, and the unused points are those that are no corner.
pub fn count_laws()
    ensures { Laws }
{}

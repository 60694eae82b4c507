// The laws of meshes, and examples, each on a contract of its own so that the check asks for its proof.
ghost use Rattle.mesh.specs.Laws.{Laws};
ghost use Rattle.mesh.specs.Examples.{Examples};

// What holds of half-edges, twins, stored, grid and mirrored meshes, and of pairing.
pub fn mesh_laws()
    ensures { Laws }
{}

// What the definitions make of small meshes.
pub fn mesh_examples()
    ensures { Examples }
{}

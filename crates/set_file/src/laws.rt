// The laws of a reading, and examples of it, each on a contract of its own so that the check asks for its proof.
ghost use Rattle.set_file.specs.Laws.{Laws};
ghost use Rattle.set_file.specs.Examples.{Examples};

// How a reading ends, what it keeps, and which line and word its fault names.
pub fn reading_laws()
    ensures { Laws }
{}

// What the definitions make of small files.
pub fn reading_examples()
    ensures { Examples }
{}

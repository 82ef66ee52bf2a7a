//! Laws of the definitions. The function has an empty body, and its contract states the law.

ghost use Rattle.ms_app.specs.inner.Laws.{GeneratedSourcesAreFoundValid};

/// Each generated source that is decided is found valid.
pub fn law_of_generated()
    ensures { GeneratedSourcesAreFoundValid }
{}

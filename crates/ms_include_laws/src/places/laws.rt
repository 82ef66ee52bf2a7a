//! Laws of the definitions. The function has an empty body, and its contract states the laws.

ghost use Rattle.ms_include_laws.specs.inner.places.Laws.{ExpressionsInsideHavePlaces, FirstFaultsAreTold, LoadedSourcesHavePlaces, LoadedTextsHavePlaces, RefusedLoadsAreTold, RefusedTextsAreTold, TypedSourcesKeepPlaces};

/// The places of a source that is loaded are in its files, and what it becomes keeps none but these. Where it is not loaded, or has
/// a fault, the line of the refusal can be written over the files that were read.
pub fn laws_of_places()
    ensures inside { ExpressionsInsideHavePlaces }
    ensures sources { LoadedSourcesHavePlaces }
    ensures texts { LoadedTextsHavePlaces }
    ensures typed { TypedSourcesKeepPlaces }
    ensures refused_loads { RefusedLoadsAreTold }
    ensures refused_texts { RefusedTextsAreTold }
    ensures first_faults { FirstFaultsAreTold }
{}

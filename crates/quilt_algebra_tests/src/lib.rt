//! Tries map algebra and measures over drawn maps, each against a plain computation that goes over all pixels, and rasters, windows, buffers and polygons.
#![tactic(auto)]

#[cfg(test)]
mod comparing;
#[cfg(test)]
mod tests;

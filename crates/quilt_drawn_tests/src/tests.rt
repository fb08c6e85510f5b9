mod chain;
mod grids;
mod pools;
mod surveys;
mod trials;

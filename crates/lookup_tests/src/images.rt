mod pieces;
mod rules;
mod sets;

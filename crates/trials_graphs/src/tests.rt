mod connectivity;
mod judging;
mod parts;
mod placements;
mod shapes;

mod devices;
mod flows;
mod graphs;
mod link_recipes;
mod paths;
mod rounds;
mod row_texts;
mod topologies;

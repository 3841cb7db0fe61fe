// Proofs over small schemas, with firings, facts and known values that are worked out by hand.
mod calls;
mod closings;
mod listing;
mod looks;
mod marks;
mod products;
mod queries;
mod rounds;
mod schemas;
mod settling;
mod texts;

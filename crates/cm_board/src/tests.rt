//! Two kinds of jobs: numbers, of which three children answer on threads of their own while the owner parks, again and again,
//! and lists that are as long as they say.
mod lists;
mod numbers;

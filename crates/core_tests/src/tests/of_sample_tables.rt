mod caches;
mod tables;
mod values;

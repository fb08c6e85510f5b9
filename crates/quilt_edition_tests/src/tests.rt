mod faults;
mod files;
mod stops;
mod work;
